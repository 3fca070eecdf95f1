//! What follows from the definitions, for callers that get lines and say texts one after another.

ghost use Rattle.std.specs.Prelude.{◌≡◌, ◌≤◌, ℕ, ◌++◌, List, [], ◌∷◌, length, true, false, All};
ghost use Rattle.trdp_lines.specs.IntakeRuns.{IntakeStep, all_bytes, lines_handed_in};
ghost use Rattle.trdp_lines.specs.IntakeRuns.{left_at_end};
ghost use Rattle.trdp_lines.specs.Lines.{line_end, has_line, first_line, behind_line, lines_in};
ghost use Rattle.trdp_lines.specs.Lines.{rest_of, with_ends, IsUnended};
ghost use Rattle.trdp_lines.specs.Outgoings.{lost_limit};
ghost use Rattle.trdp_lines.specs.OutgoingRuns.{OutgoingStep, GoesWhole, texts_of};

/// Bytes are their whole lines, each with its end, and the rest after the last end. No line has
/// an end within, nor has the rest: there is one way only to read lines in them.
pub fn bytes_are_lines_and_rest()
    ensures bytes { (bytes : List ℕ) → bytes ≡ with_ends (lines_in bytes) ++ rest_of bytes }
    ensures lines { (bytes : List ℕ) → All IsUnended (lines_in bytes) }
    ensures rest { (bytes : List ℕ) → IsUnended (rest_of bytes) }
{}

/// Whole lines come one by one: if the end of a line is there, the first line comes first, and the
/// lines after it come next. If none is there, there is no whole line.
pub fn lines_come_one_by_one()
    ensures split { (bytes : List ℕ) → has_line bytes ≡ true
        → bytes ≡ first_line bytes ++ line_end ∷ behind_line bytes }
    ensures unended { (bytes : List ℕ) → IsUnended (first_line bytes) }
    ensures first { (bytes : List ℕ) → has_line bytes ≡ true
        → lines_in bytes ≡ first_line bytes ∷ lines_in (behind_line bytes) }
    ensures none { (bytes : List ℕ) → has_line bytes ≡ false → lines_in bytes ≡ [] }
{}

/// Whole lines stay as they are when more bytes come: what follows are the lines of what comes
/// after the last end of a line, with the bytes after it.
pub fn whole_lines_stay()
    ensures { (bytes more : List ℕ)
        → lines_in (bytes ++ more) ≡ lines_in bytes ++ lines_in (rest_of bytes ++ more) }
{}

/// Whenever bytes come and whenever a line is asked for, the lines that are handed in are those of
/// all bytes that came, each once and in order; only those of the bytes that are left are to come.
pub fn each_line_is_handed_in()
    ensures { (steps : List IntakeStep) → lines_in (all_bytes steps)
        ≡ lines_handed_in [] steps ++ lines_in (left_at_end [] steps) }
{}

/// Whatever the other side takes and when, it gets the texts that were pushed, each whole, in
/// their order; in the place of some that were dropped it gets a line that says how many. This
/// holds if no more texts are pushed than can be counted.
pub fn texts_go_whole()
    ensures { (steps : List OutgoingStep) → length (texts_of steps) ≤ lost_limit
        → GoesWhole steps }
{}
