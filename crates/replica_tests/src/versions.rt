//! The pages of a table, and versions of rows for which there is no memory.

mod pages;
mod refused;
