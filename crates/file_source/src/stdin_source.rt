// Standard input.
ghost use Rattle.std.specs.Prelude.{◌≡◌};
ghost use Rattle.base_source.specs.SourceCalls.{untold_source};

use base_devices::{Failed, counted};
use base_source::Source;
use std::io::{Input, Read};
use std::marker::Model;

/// Standard input, read as far as the system gives it: a line that is typed is there once it is ended.
///
/// Nothing is read before the first call, and each call that wants bytes makes one system call. It keeps no byte back, so
/// none is lost to what reads standard input afterwards.
///
/// Nothing here is proved of the bytes: the contract speaks of the count of faults alone.
#[derive(Drop)]
pub struct StdinSource<R: Input + Drop> {
    rt: R,
    faults: u64,
}

impl<R: Input + Drop> Model for StdinSource<R> {
    ghost use Rattle.std.specs.Prelude.{ℕ};

    ghost Value = { ℕ };

    ghost view = { λ s. s.faults };
}

impl<R: Input + Drop> StdinSource<R> {
    /// Standard input. Nothing is read before the first call.
    pub fn new(rt: R) -> Self
        ensures { result ≡ 0 }
    {
        StdinSource { rt, faults: 0 }
    }
}

impl<R: Input + Drop> Source for StdinSource<R> {
    ghost state = { untold_source };

    fn read(&mut self, into: &mut [u8]) -> Result<usize, Failed> {
        let answer = self.rt.reader().read(into);
        counted(&mut self.faults, answer)
    }
}
