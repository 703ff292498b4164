// The generator, row by row.
ghost use Rattle.std.specs.Prelude.{◌≡◌, ◌<◌, ◌≤◌, ◌+◌, pos, ◌≤ℤ◌, ◌<ℤ◌};
ghost use Rattle.tilt_made.specs.Generator.{after_row, drawn, made_row, next, row_end};

use tilt_stream::Row;

/// Draws numbers, of which three make a row.
#[derive(Drop)]
pub(crate) struct Generator {
    state: u32,
}

impl Generator {
    /// One that begins with the seed.
    pub(crate) fn new(seed: u32) -> Generator
        ensures { result.state ≡ seed }
    {
        Generator { state: seed }
    }

    // Draws a number below `below`.
    fn draw(&mut self, below: u32) -> u32
        requires { 0 < below }
        ensures state { self.new.state ≡ next self.old.state }
        ensures drawn { result ≡ drawn below self.new.state }
        ensures below { result < below }
    {
        let next = (1_103_515_245 * u64::from(self.state) + 12_345) % 2_147_483_648;
        self.state = next as u32;
        self.state / 65_536 % below
    }

    /// Makes a row at the position, which moves to the row's end.
    pub(crate) fn row(&mut self, position: &mut u32) -> Row
        requires { position.old ≤ 4000000000 }
        ensures row { result ≡ made_row self.old.state position.old }
        ensures state { self.new.state ≡ after_row self.old.state }
        ensures position { position.new ≡ row_end self.old.state position.old }
        ensures short { position.new ≤ position.old + 11 }
    {
        let start = *position + self.draw(3);
        *position = start + self.draw(9) + 1;
        let value = i64::from(self.draw(2001)) - 1000;
        Row {
            start: i64::from(start),
            end: i64::from(*position),
            value: Some(value),
        }
    }
}
