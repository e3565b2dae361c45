use std::alloc::{AllocError, Global};
use std::fmt::Debug;
use thiserror::Error;

// The first difference in words, or that memory ran out.
#[derive(Debug, Drop, Error)]
pub enum Failure {
    #[error("{0}")]
    Differ(String),
    #[error(transparent)]
    Memory(#[from(alloc)] AllocError),
}

// Compares answers at one step: a call of a list, or a form of an archive.
#[derive(Clone, Copy)]
pub struct Check {
    heap: Global,
    step: u32,
}

impl Check {
    pub(crate) fn at_step(heap: Global, step: u32) -> Check {
        Check { heap, step }
    }

    // What differs is put into words apart, so that a comparison that agrees costs no more than its test.
    #[cold]
    fn differ<T: Debug + Drop>(
        self,
        what: &str,
        at: Option<usize>,
        library: T,
        plain: T,
    ) -> Result<(), Failure> {
        let step = self.step;
        let difference = match at {
            Some(at) => format!(in self.heap;
                "step {step}: {what} {at}: library {library:?}, plain {plain:?}"
            )?,
            None => format!(in self.heap;
                "step {step}: {what}: library {library:?}, plain {plain:?}"
            )?,
        };
        Err(Failure::Differ(difference))
    }

    #[inline]
    fn compare<T: PartialEq + Debug + Drop>(
        self,
        what: &str,
        at: Option<usize>,
        library: T,
        plain: T,
    ) -> Result<(), Failure> {
        if library == plain {
            return Ok(());
        }
        self.differ(what, at, library, plain)
    }

    // An error where the two answer otherwise to what was asked.
    #[inline]
    pub(crate) fn same<T: PartialEq + Debug + Drop>(
        self,
        what: &str,
        library: T,
        plain: T,
    ) -> Result<(), Failure> {
        self.compare(what, None, library, plain)
    }

    // The same where what was asked has a place or a number.
    #[inline]
    pub(crate) fn same_at<T: PartialEq + Debug + Drop>(
        self,
        what: &str,
        at: usize,
        library: T,
        plain: T,
    ) -> Result<(), Failure> {
        self.compare(what, Some(at), library, plain)
    }
}
