// Where streams that are read by leaves next have a mark.
ghost use Rattle.std.specs.Prelude.{ℤ, ◌+ℤ◌, ◌-ℤ◌, IfSome};
ghost use Rattle.tilt_stream.specs.Marks.{NamesNextMark, joined};
ghost use Rattle.tilt_stream.specs.Pointwise.{shifted};
ghost use Rattle.tilt_stream.specs.Stream.{Stream};
ghost use Rattle.tilt_turn.specs.Ready.{IsMarkTick};

// The next mark of a stream that is read so many ticks later than the tick.
#[inline]
pub(crate) fn earlier(next: Option<i64>, offset: i64) -> Option<i64>
    requires { IfSome next (λ mark. IsMarkTick (mark -ℤ offset)) }
    ensures next { (x : Stream) (tick : ℤ) → NamesNextMark x (tick +ℤ offset) next → NamesNextMark (shifted x offset) tick result }
    ensures bounds { IfSome result IsMarkTick }
{
    Some(next? - offset)
}

// The smaller of two ticks, if both are there, or else the one that is there.
#[inline]
pub(crate) fn lesser(a: Option<i64>, b: Option<i64>) -> Option<i64>
    ensures next { (x y : Stream) (tick : ℤ) → NamesNextMark x tick a → NamesNextMark y tick b → NamesNextMark (joined x y) tick result }
    ensures bounds { IfSome a IsMarkTick → IfSome b IsMarkTick → IfSome result IsMarkTick }
{
    match (b, a) {
        (None, a) => a,
        (Some(b), Some(a)) => Some(a.min(b)),
        (Some(b), None) => Some(b),
    }
}
