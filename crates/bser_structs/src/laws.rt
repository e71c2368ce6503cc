//! Laws of enums. Each is a function that does nothing, and its contract is the law.
ghost use Rattle.bser_structs.specs.EnumNames.{NamesOfLacking, NamesOfPayloads, NamesOfVariants};

/// An error of the calls on an enum is the one that the plain reader of the enum gives.
pub fn enums_are_named()
    ensures variants { NamesOfVariants }
    ensures lacking { NamesOfLacking }
    ensures payloads { NamesOfPayloads }
{}
