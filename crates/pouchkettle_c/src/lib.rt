// The static library that a gateway in Rust or C links, libpouchkettle.a: the functions of `pouchkettle`, exported under the same names.
// Each states the clauses of its function word for word, and only calls it: the C interface holds the twins, since a crate is either a
// library or a static library. Answers are numbers, which docs/AUDIT.md lists. A slice goes as pointer and length; every struct is laid
// out as C does.
#![tactic(auto)]

mod application;
mod firmware;
mod network;
