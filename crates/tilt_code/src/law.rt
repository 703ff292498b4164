// Laws of the meaning of codes.
ghost use Rattle.std.specs.Int.{int_min};
ghost use Rattle.std.specs.List.{AllByRecursion};
ghost use Rattle.std.specs.Prelude.{List, ◌≡◌, [], ◌∷◌, ◌++◌, ℤ, pos, neg_ℤ, ◌+ℤ◌, ◌-ℤ◌, ◌<ℤ◌, ◌≤ℤ◌, map};
ghost use Rattle.tilt_base.specs.Grid.{GridPoints, IsGrid, ceil, floor};
ghost use Rattle.tilt_base.specs.declared.limits.TheConstants.{WIDE};
ghost use Rattle.tilt_code.specs.Body.{body_of};
ghost use Rattle.tilt_code.specs.Code.{LoopParts, CodeParts};
ghost use Rattle.tilt_code.specs.Meaning.{IsTimed, loop_of, with_loops, meaning_of};
ghost use Rattle.tilt_code.specs.References.{IsCode};
ghost use Rattle.tilt_code.specs.Run.{buffers_of, run_of};
ghost use Rattle.tilt_code.specs.Turn.{turn, turns_until, turns};
ghost use Rattle.tilt_stream.specs.Agreement.{ChangesOnlyAtMarks};
ghost use Rattle.tilt_stream.specs.Marks.{IsNextMark, HasNoMarkAbove};
ghost use Rattle.tilt_stream.specs.Snap.{Snapshot, AreSnapshots, Fill};
ghost use Rattle.tilt_stream.specs.Snapshots.{snapshots};
ghost use Rattle.tilt_stream.specs.Stream.{Stream, SameStream, stream_of};

/// This does nothing. Its clauses say what turns are, without the counts of ticks by which they are defined. From a start below the end of
/// the stretch there is one turn, and then the turns from its end; from the end of the stretch on there is none. A turn ends above its
/// start, and not above the end of the stretch. It ends by the next mark of the body above the grid point at which its value is taken,
/// however far that mark lies. If there is no such mark, it ends at the end of the stretch.
pub fn turns_end_by_marks()
    ensures first { (body : Stream) (grid : GridPoints) (hi start : ℤ) → IsGrid grid → start <ℤ hi
        → turns_until body grid hi start ≡ turn body grid hi start ∷ turns_until body grid hi (turn body grid hi start).end }
    ensures none { (body : Stream) (grid : GridPoints) (hi start : ℤ) → hi ≤ℤ start → turns_until body grid hi start ≡ [] }
    ensures ends { (body : Stream) (grid : GridPoints) (hi start : ℤ) → IsGrid grid → start <ℤ hi
        → (start <ℤ (turn body grid hi start).end) × ((turn body grid hi start).end ≤ℤ hi) }
    ensures by_mark { (body : Stream) (grid : GridPoints) (hi start next : ℤ) → IsGrid grid → start <ℤ hi
        → IsNextMark body (ceil grid (start +ℤ pos 1)) next
        → (turn body grid hi start).end ≡ int_min hi (floor grid (next -ℤ pos 1)) }
    ensures without_mark { (body : Stream) (grid : GridPoints) (hi start : ℤ) → IsGrid grid → start <ℤ hi
        → HasNoMarkAbove body (ceil grid (start +ℤ pos 1))
        → (turn body grid hi start).end ≡ hi }
{}

/// This does nothing. Its clauses are the law that ties turns to streams, for loops that have a stretch and a grid; what a loop refers to
/// needn't be there. Over buffers that change only at marks, the body changes only at marks, and so does the loop. The turns of a loop are
/// the snapshots of its stream on its stretch, and their list has that stream, at every tick. So the buffers of a code have the streams of
/// its loops read as definitions. So, too, the run of a code gives the snapshots of its meaning on the stretch of its last loop. The loops
/// of each `Code` have a stretch and a grid. The lists touch and go from the lower end of the stretch to the upper.
pub fn loops_are_streams()
    ensures body_changes { (xs : List Stream) (l : LoopParts) → AllByRecursion ChangesOnlyAtMarks xs
        → ChangesOnlyAtMarks (body_of xs l) }
    ensures loop_changes { (xs : List Stream) (l : LoopParts) → IsTimed l → AllByRecursion ChangesOnlyAtMarks xs
        → ChangesOnlyAtMarks (loop_of xs l) }
    ensures turns { (xs : List Stream) (l : LoopParts) → IsTimed l → turns xs l ≡ snapshots (loop_of xs l) l.lo l.hi }
    ensures stream { (xs : List Stream) (l : LoopParts) → IsTimed l → AllByRecursion ChangesOnlyAtMarks xs
        → SameStream (stream_of (turns xs l)) (loop_of xs l) }
    ensures turns_fill { (xs : List Stream) (l : LoopParts) → IsTimed l → Fill l.lo l.hi (turns xs l) }
    ensures buffers { (code : CodeParts) (inputs : List (List Snapshot)) → AllByRecursion IsTimed code.loops
        → map stream_of (buffers_of code inputs) ≡ with_loops (map stream_of inputs) code.loops }
    ensures run { (code : CodeParts) (inputs : List (List Snapshot)) (front : List LoopParts) (l : LoopParts)
        → code.loops ≡ front ++ l ∷ [] → AllByRecursion IsTimed code.loops
        → run_of code inputs ≡ snapshots (meaning_of code inputs) l.lo l.hi }
    ensures run_fills { (code : CodeParts) (inputs : List (List Snapshot)) (front : List LoopParts) (l : LoopParts)
        → code.loops ≡ front ++ l ∷ [] → AllByRecursion IsTimed code.loops → Fill l.lo l.hi (run_of code inputs) }
    ensures timed { (code : CodeParts) → IsCode code → AllByRecursion IsTimed code.loops }
    ensures within_limits { (lo hi : ℤ) (list : List Snapshot) → neg_ℤ WIDE ≤ℤ lo → hi ≤ℤ WIDE → Fill lo hi list
        → AreSnapshots list }
{}
