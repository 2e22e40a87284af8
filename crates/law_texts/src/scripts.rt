//! Scripts: what an operation, a line and a text are read as.
ghost use Rattle.std.specs.Prelude.{◌≡◌, ◌↔◌, ℕ, List, Ok};
ghost use Rattle.pb_base.specs.declared.cell.Cell.{Cell};
ghost use Rattle.pb_base.specs.declared.content.Content.{Content};
ghost use Rattle.pb_base.specs.Batch.{Writes};
ghost use Rattle.pb_parse.specs.ScriptWords.{operation};
ghost use Rattle.pb_parse.specs.ScriptLines.{Batches, batch_of, script_of};
ghost use Rattle.law_texts.specs.OperationTexts.{IsOperationOf};
ghost use Rattle.law_texts.specs.LineTexts.{IsBatchLine};
ghost use Rattle.law_texts.specs.ScriptTexts.{IsScriptOf};

use pb_parse::reads_operations;

/// An operation is read as a write exactly where its text is the write's, character for character:
/// `put`, row, column and 1 to 32 bytes in lower-case hexadecimal, with zeros after them in the
/// value; or `del`, row and column. Rows have 64 bits, columns are below 16, both are in decimal,
/// and one blank stands between two words.
pub fn operations_are_read_as_written()
    ensures { (text : List ℕ) (x : Cell) (content : Content)
        → (operation text ≡ Ok (x, content)) ↔ IsOperationOf x content text }
{}

/// A line is read as a transaction exactly where it is the operations of the transaction's writes in their order, with
/// `; ` between them, character for character. They are 1 to 16, and each is to another cell.
pub fn lines_are_read_as_written()
    ensures { (line : List ℕ) (batch : Writes)
        → (batch_of line ≡ Ok batch) ↔ IsBatchLine batch line }
{
    reads_operations();
}

/// A text is read as transactions exactly where those of its lines that are neither empty nor begin with `#` are the
/// lines of these transactions, in their order, and they are at most 10,000. A newline stands between two lines.
pub fn scripts_are_read_as_written()
    ensures { (text : List ℕ) (batches : Batches)
        → (script_of text ≡ Ok batches) ↔ IsScriptOf batches text }
{
    lines_are_read_as_written();
}
