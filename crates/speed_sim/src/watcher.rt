//! What watches a run.

ghost use Rattle.std.specs.Prelude.{◌≡◌};
ghost use Rattle.scale_base.specs.declared.stepping.Stepped.{Stepped};
ghost use Rattle.keep_monitor.specs.Watch.{watch};
ghost use Rattle.keep_monitor.specs.Counted.{counted};

use keep_monitor::{LoopCounter, Monitor};
use scale_base::Stepped;

/// Sees the completed steps of a run after which it goes on.
pub trait Watches {
    ghost watched: { Self → Stepped → Self };

    /// Sees the next step.
    fn show(&mut self, step: &Stepped)
        ensures { self.new ≡ watched self.old step.now };
}

/// Watches nothing.
#[derive(Clone, Copy)]
pub struct Unwatched;

impl Watches for Unwatched {
    ghost watched = { λ w x. w };

    #[inline(always)]
    fn show(&mut self, _step: &Stepped) {}
}

impl Watches for Monitor {
    ghost watched = { watch };

    #[inline(always)]
    fn show(&mut self, step: &Stepped) {
        self.see(step);
    }
}

impl Watches for LoopCounter {
    ghost watched = { counted };

    #[inline(always)]
    fn show(&mut self, step: &Stepped) {
        self.see(step);
    }
}
