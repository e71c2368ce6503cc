//! Laws of the texts of SQL. Each is a function that does nothing, and its contract is the law.
ghost use Rattle.watchman_sqlite.specs.Schemas.{IsPlainQuestion};
ghost use Rattle.watchman_sqlite.specs.declared.schema.TheConstants.{FILES, NAMED, PRESENT, SUFFIX};

/// A question for files compiles over a database with the tables of an index, perhaps with others
/// behind them, and neither has `RETURNING` nor reads the time. So the clauses of
/// [`visit_all`](crate::connection::visit_all) and [`visit_changes`](crate::connection::visit_changes)
/// hold of these.
pub fn questions_are_plain()
    ensures files { IsPlainQuestion FILES.now }
    ensures present { IsPlainQuestion PRESENT.now }
    ensures suffix { IsPlainQuestion SUFFIX.now }
    ensures named { IsPlainQuestion NAMED.now }
{}
