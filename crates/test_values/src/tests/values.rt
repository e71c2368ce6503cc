//! Values: their texts, how often a reader is called for one, and what a fault leaves. Expected texts
//! of printing are made by hand, after the rules that `Display` states.
mod looking;
mod printing;
mod readers;
mod writing;
