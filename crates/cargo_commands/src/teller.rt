//! What tells how far a run has come.

use crate::seen::Seen;
use crate::watch::Watch;
use std::io::Eprint;
use std::time::Clock;

/// For how many milliseconds a run tells nothing.
const SILENT: u128 = 500;

/// After how many milliseconds it tells again how far it has come.
const PAUSE: u128 = 100;

/// What tells how much a run has seen, to who watches. The line that it stands on is erased in the end.
pub(crate) struct Teller<'a, R: Clock + Eprint> {
    rt: &'a R,
    watch: Watch,
    /// From how many milliseconds on it tells again.
    next: u128,
    /// Whether it stands on the terminal.
    is_told: bool,
}

impl<'a, R: Clock + Eprint> Teller<'a, R> {
    pub(crate) fn new(rt: &'a R, watch: Watch) -> Teller<'a, R> {
        Teller {
            rt,
            watch,
            next: SILENT,
            is_told: false,
        }
    }

    /// Tells what was seen, where it is time to.
    pub(crate) fn tell(&mut self, seen: &Seen) {
        let Some(millis) = self.watch.shown(self.rt) else {
            return;
        };
        if millis < self.next {
            return;
        }
        self.next = millis.saturating_add(PAUSE);
        self.is_told = true;
        let (asked, lines) = (seen.asked(), seen.lines);
        let _ = eprint!(self.rt; "\r     Reading {asked} names, {lines} lines");
    }
}

impl<R: Clock + Eprint> Drop for Teller<'_, R> {
    fn drop(self) {
        let Teller {
            rt,
            watch: _,
            next: _,
            is_told,
        } = self;
        if is_told {
            let _ = eprint!(rt; "\r\x1b[K");
        }
    }
}
