//! Types that are read: what no contract says.
mod announced;
mod checks;
mod described;
mod faults;
mod lent;
mod lists;
mod maps;
mod parts;
mod printed;
