//! What holds of calls of a taker one after another.

ghost use Rattle.std.specs.Prelude.{◌≡◌, ◌<◌, ◌++◌, ℕ, List, length};
ghost use Rattle.trace_lines.specs.Calls.{left_after_calls, pieces_by, all_lines_of, piece_after, EndsLines};
ghost use Rattle.trace_lines.specs.Lines.{RemainingLines, file_lines};
ghost use Rattle.trace_lines.specs.Pieces.{IsLast};

/// The pieces of one taker, in order, are the lines of the file. Each call takes the front of what
/// is left and leaves the back: the lines of all pieces, and after them those that are left, are
/// the lines of the file. A piece with another ending than `More`, or that is shorter than asked,
/// has the ending of the file, and no line is left after it. A file never ends in `More`.
pub fn pieces_are_the_file()
    ensures so_far { (calls : List ℕ) (file : RemainingLines) →
        all_lines_of (pieces_by calls file) ++ (left_after_calls calls file).lines ≡ file.lines }
    ensures ended { (calls : List ℕ) (asked : ℕ) (file : RemainingLines) →
        IsLast (piece_after calls asked file).ending → EndsLines calls asked file }
    ensures short { (calls : List ℕ) (asked : ℕ) (file : RemainingLines) →
        length (piece_after calls asked file).lines < asked → EndsLines calls asked file }
    ensures ending { (most : ℕ) (bytes : List ℕ) → IsLast (file_lines most bytes).ending }
{}
