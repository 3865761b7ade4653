//! The numbers that are drawn.

ghost use Rattle.std.specs.Prelude.{◌≡◌, ◌<◌, ◌^◌};
ghost use Rattle.image_maker.specs.Drawing as drawing;

/// A linear congruential sequence of 64 bits.
#[derive(Drop)]
pub struct Draws {
    pub state: u64,
}

impl Draws {
    /// The next number, of 31 bits.
    pub fn draw(&mut self) -> u32
        ensures number { result ≡ drawing.drawn self.old.state }
        ensures state { self.new.state ≡ drawing.next self.old.state }
    {
        self.state = self
            .state
            .wrapping_mul(6_364_136_223_846_793_005)
            .wrapping_add(1_442_695_040_888_963_407);
        (self.state >> 33) as u32
    }
}
