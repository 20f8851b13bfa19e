//! What the lines of a file hold from one to the next.
use crate::kinds;
use jsonld_context::{Context, JsonFault};
use jsonld_values::Names;
use std::alloc::{AllocError, Global};
use transcripts::{Case, Tries};

/// What is held.
#[derive(Drop)]
pub struct Held {
    /// What takes memory.
    alloc: Global,
    /// What the last `context` line gave, where it could be read.
    pub read: Option<Box<Result<Context, JsonFault>>>,
    /// The names that a text of several parts has met so far.
    pub names: Option<Box<Names>>,
}

impl Held {
    /// Nothing.
    pub fn new(alloc: Global) -> Held {
        Held {
            alloc,
            read: None,
            names: None,
        }
    }

    /// The context under which lines are read.
    pub fn context(&self) -> Option<&Context> {
        match &self.read {
            Some(read) => context_of(read),
            None => None,
        }
    }
}

/// The context that was read.
pub fn context_of(read: &Result<Context, JsonFault>) -> Option<&Context> {
    match read {
        Ok(context) => Some(context),
        Err(_) => None,
    }
}

impl Tries for Held {
    fn forget(&mut self) {
        self.read = None;
        self.names = None;
    }

    fn put(&mut self, out: &mut String, case: &Case<'_>) -> Result<bool, AllocError> {
        kinds::put(self.alloc, out, self, case)
    }
}
