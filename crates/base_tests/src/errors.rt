//! The texts of errors that tell numbers. No program prints them.

use cover_table::NoLeast;
use exception_graph::GraphError;
use std::alloc::Global;
use std::fmt::Display;

/// Whether an error is told by this text.
fn is_told<E: Display>(alloc: Global, error: &E, text: &str) -> bool {
    match format!(in alloc; "{error}") {
        Ok(told) => told.as_str() == text,
        Err(_) => false,
    }
}

#[test]
fn errors_of_graphs_tell_their_numbers(rt: HostRuntime) {
    let alloc = rt.alloc();
    let in_table = NoLeast { a: 3, b: 4 };
    assert!(rt; is_told(alloc, &in_table, "3 and 4 have no least common cover"));
    let no_least = GraphError::NoLeast { a: 3, b: 4 };
    assert!(rt;
        is_told(
            alloc,
            &no_least,
            "exceptions 3 and 4 have no least common cover"
        )
    );
    let cycle = GraphError::Cycle { at: 5 };
    assert!(rt; is_told(alloc, &cycle, "exception 5 covers another that covers it"));
    let too_many = GraphError::TooMany { count: 129 };
    assert!(rt; is_told(alloc, &too_many, "129 exceptions are too many for a graph"));
}
