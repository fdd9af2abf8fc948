//! What the definitions say of each other: lines and their words; the table of forms, which has one reading, and in which each edition
//! reads what the one before read; and the rows and parameters of commands, whose written form reads back.

ghost use Rattle.std.specs.Prelude.{◌≡◌, ◌≢◌, ℕ, Bool, false, ◌==◌, List, ◌∷◌, ◌++◌, length, All, Ok, Some, IsSome, IsTrue};
ghost use Rattle.std.specs.List.{join_with_byte, list_any};
ghost use Rattle.std.specs.Str.Lines.{lines};
ghost use Rattle.script_lines.specs.Octet.{is_blank, is_plain};
ghost use Rattle.script_lines.specs.Word.{is_word_text, placed, words_of_line, IsWordOf, LineWord};
ghost use Rattle.script_lines.specs.declared.row.Row.{Row as TableRow};
ghost use Rattle.script_lines.specs.declared.row.Row.TheVariants.{Reading as ReadingRow};
ghost use Rattle.script_lines.specs.declared.fields.Fields.{Fields as Given};
ghost use Rattle.script_lines.specs.declared.said.Said.{Said as LineSays};
ghost use Rattle.script_lines.specs.declared.command.Command.{Command as NodeCommand};
ghost use Rattle.script_lines.specs.Form.{Edition, with_labels, with_ranges, with_translations, form_of, line_rows, is_key};
ghost use Rattle.script_lines.specs.Said.{are_apart, slot_of, read_said, is_complete};
ghost use Rattle.script_lines.specs.Command.{command_of, said_of, texts_of_said, command_text, IsCommand};
ghost use Rattle.script_lines.specs.Bounded.{IsBounded};

/// No line has a LF.
pub fn lines_have_no_line_feed()
    ensures { (text : List ℕ)
        → All (λ line. list_any (λ octet. octet == 10) line ≡ false) (lines text) }
{}

/// A word stands in its line at its place, and is one: it isn't empty, has no blank and doesn't begin with `#`.
pub fn words_stand_in_their_line()
    ensures { (line : List ℕ) → All (IsWordOf line) (words_of_line line) }
{}

/// Octets that a line may hold, with LF behind them, are one line, and the lines of what stands behind the LF come next.
pub fn plain_octets_are_a_line()
    ensures { (line text : List ℕ) → All (λ octet. IsTrue (is_plain octet)) line
        → lines (line ++ (10 ∷ text)) ≡ line ∷ lines text }
{}

/// Words that are joined by spaces are the words of that line, also behind blanks.
pub fn joined_words_read_back()
    ensures { (blanks : List ℕ) (texts : List (List ℕ))
        → All (λ octet. IsTrue (is_blank octet)) blanks
        → All (λ text. IsTrue (is_word_text text)) texts
        → words_of_line (blanks ++ join_with_byte 32 texts) ≡ placed (length blanks) texts }
{}

/// Of no two rows the fixed words of one begin those of the other, so a line is of one row at most.
pub fn forms_are_apart()
    ensures { (led : Bool) (edition : Edition)
        → IsTrue (are_apart edition (line_rows led edition)) }
{}

/// A key of a row's parameter is no key of another one of that row.
pub fn keys_are_distinct()
    ensures { (edition : Edition) (row : TableRow)
        → All (λ slot. (key : List ℕ) → IsTrue (is_key slot.parameter key)
        → slot_of (form_of edition row).slots key ≡ Some slot) (form_of edition row).slots }
{}

/// What the first edition reads of a line's words, the one with ranges reads alike: a static entry's label as both ends, and a
/// receiver's label as the level of a range from the lowest label.
pub fn lines_with_labels_are_kept()
    ensures { (led : Bool) (end : ℕ) (words : List LineWord) (said : LineSays)
        → read_said with_labels (line_rows led with_labels) end words ≡ Ok said
        → read_said with_ranges (line_rows led with_ranges) end words ≡ Ok said }
{}

/// What the edition with ranges reads of a line's words, the last one reads alike.
pub fn lines_with_ranges_are_kept()
    ensures { (led : Bool) (end : ℕ) (words : List LineWord) (said : LineSays)
        → read_said with_ranges (line_rows led with_ranges) end words ≡ Ok said
        → read_said with_translations (line_rows led with_translations) end words ≡ Ok said }
{}

/// Where no parameter is missing, a row makes a command; a reading line alone makes none.
pub fn complete_rows_are_commands()
    ensures { (edition : Edition) (row : TableRow) (given : Given) → row ≢ ReadingRow
        → IsTrue (is_complete (form_of edition row).slots given) → IsSome (command_of row given) }
{}

/// A command's row and parameters make that command.
pub fn commands_are_what_they_say()
    ensures { (command : NodeCommand)
        → command_of (said_of command).row (said_of command).fields ≡ Some command }
{}

/// The words of a command's written form say that command, also behind blanks, and behind `netlabelctl`.
pub fn written_command_reads_back()
    ensures { (led : Bool) (end : ℕ) (blanks : List ℕ) (command : NodeCommand)
        → All (λ octet. IsTrue (is_blank octet)) blanks → IsCommand command
        → read_said with_translations (line_rows led with_translations) end
        (words_of_line (blanks ++ command_text command))
        ≡ Ok (said_of command) }
{}

/// A command's written form is of octets that a line may hold, so it has no LF.
pub fn written_command_is_plain()
    ensures { (command : NodeCommand) → IsCommand command
        → All (λ octet. IsTrue (is_plain octet)) (command_text command) }
{}

/// Its words are the row's fixed words and those of the parameters that are given, one octet apart, also behind blanks.
pub fn written_command_has_its_words()
    ensures { (blanks : List ℕ) (command : NodeCommand)
        → All (λ octet. IsTrue (is_blank octet)) blanks → IsCommand command
        → words_of_line (blanks ++ command_text command) ≡ placed (length blanks)
        (texts_of_said (said_of command)) }
{}

/// The numbers and labels of a command whose parameters have values of their forms are within their bounds.
pub fn commands_are_bounded()
    ensures { (command : NodeCommand) → IsCommand command → IsBounded command }
{}
