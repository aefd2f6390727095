//! std's types that write themselves, in one module for each shape of value.

mod hashed;
mod integers;
mod maps;
mod options;
mod pairs;
mod references;
mod sequences;
mod text;
mod tuples;
mod words;
