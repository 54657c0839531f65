//! That the reference hart agrees with made rows, and that the made texts read back as these.

ghost use Rattle.std.specs.Prelude.{◌≡◌, ◌++◌, ℕ, codes, length};
ghost use Rattle.hart_words.specs.Memory.{Bytes};
ghost use Rattle.hart_words.specs.declared.map.Map.{Map};
ghost use Rattle.rvfi_rows.specs.Columns.{header_columns};
ghost use Rattle.trace_maker.specs.Texts.{header_text, made_image};
ghost use Rattle.made_runs.specs.Images.{IsMadeImage};
ghost use Rattle.made_runs.specs.Laws.{MadeLinesReadBack, MadeLinesStand, MadeRowsAgree, MadeState};
ghost use Rattle.made_runs.specs.Laws.{MadeTextsAgree, MadeTraceIsShort};
ghost use Rattle.made_runs.specs.Shows.{header_line, made_columns};
ghost use Rattle.made_runs.specs.States.{IsMadeMap};

/// From reset at 0x80000000, with the choices that stand where none is said, where RAM is
/// 0x80000000:0x8000000 and has the image of the number, the verdict on the first rows is that they
/// agree, whatever else memory has.
pub fn made_rows_agree()
    ensures { (map : Map) (number rows : ℕ) (bytes : Bytes) → MadeRowsAgree map number rows bytes }
{}

/// For each number there are such a map and such a memory, so that the law says something.
pub fn made_states_stand()
    ensures { (number : ℕ) → MadeState number }
{}

/// The header names the thirteen columns, in the order of a row's fields.
pub fn made_headers_name_the_columns()
    ensures line { header_text ≡ header_line ++ codes "\n" }
    ensures columns { header_columns header_line ≡ Ok made_columns }
{}

/// The lines of a made trace are the header and one line for each row, none of them too long, and
/// then the trace ends, wherever as many bytes are read as it has: at most 179 for a row, and 110.
pub fn made_lines_stand()
    ensures lines { (number rows most : ℕ) → MadeLinesStand number rows most }
    ensures short { (number rows : ℕ) → MadeTraceIsShort number rows }
{}

/// Under the header's columns, the line of each made row shows the thirteen values of the row, and
/// nothing else.
pub fn made_lines_read_back()
    ensures { (number rows : ℕ) → MadeLinesReadBack number rows }
{}

/// The text of a made image, of 82 bytes, has no fault where RAM is 0x80000000:0x8000000, and
/// describes a memory with the image of the number.
pub fn made_images_read_back()
    ensures bytes { (map : Map) (number : ℕ) → IsMadeMap map → IsMadeImage map number }
    ensures short { (number : ℕ) → length (made_image number) ≡ 82 }
{}

/// From the two texts to the verdict, where RAM is 0x80000000:0x8000000 and as many bytes are read
/// as the trace has: the image is read as a memory, the trace as a header that names the columns
/// and as many lines as rows, and then it ends; and the verdict on these lines, from reset at
/// 0x80000000 with the choices that stand where none is said, over that memory, is that they agree,
/// each of them valid.
pub fn made_texts_agree()
    ensures { (map : Map) (number rows most : ℕ) → MadeTextsAgree map number rows most }
{}
