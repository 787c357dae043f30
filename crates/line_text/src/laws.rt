//! The laws of spelling: each is the contract of a function that does nothing.

ghost use Rattle.std.specs.Prelude.{◌≡◌, ◌≢◌, ◌==◌, ◌++◌, ◌<◌, ◌^◌, ℕ, List, [], Some, decimal};
ghost use Rattle.std.specs.List.{AllByRecursion, slice_split, join_with_byte};
ghost use Rattle.hex.specs.Hex.{IsBytes, encode_upper};
ghost use Rattle.line_text.specs.Number.{number_in};
ghost use Rattle.line_text.specs.Digits.{bytes_in};
ghost use Rattle.line_text.specs.Data.{data_in, data_text};
ghost use Rattle.line_text.specs.Words.{Without};
ghost use Rattle.line_text.specs.Lines.{NoFeed, whole_lines, rest_line, with_feeds};

/// A number below 2^64 has one spelling, and each spelling one number.
pub fn numbers_have_one_spelling()
    ensures read_back { (bits n : ℕ) → n < 2 ^ bits → n < 2 ^ 64 →
        number_in bits (decimal n) ≡ Some n }
    ensures one_number { (m n : ℕ) → m < 2 ^ 64 → n < 2 ^ 64 → decimal m ≡ decimal n → m ≡ n }
    ensures written_back { (bits n : ℕ) (word : List ℕ) → number_in bits word ≡ Some n →
        decimal n ≡ word }
{}

/// A list of bytes has one spelling in upper-case hexadecimal digits, and each spelling one list.
pub fn hex_has_one_spelling()
    ensures read_back { (bytes : List ℕ) → IsBytes bytes →
        bytes_in (encode_upper bytes) ≡ Some bytes }
    ensures one_list { (a b : List ℕ) → IsBytes a → IsBytes b →
        encode_upper a ≡ encode_upper b → a ≡ b }
    ensures written_back { (bytes word : List ℕ) →
        bytes_in word ≡ Some bytes → encode_upper bytes ≡ word }
{}

/// A list of bytes has one spelling as DATA, and each spelling one list.
pub fn data_has_one_spelling()
    ensures read_back { (bytes : List ℕ) → IsBytes bytes →
        data_in 512 (data_text 512 bytes) ≡ Some bytes }
    ensures one_list { (a b : List ℕ) → IsBytes a → IsBytes b →
        data_text 512 a ≡ data_text 512 b → a ≡ b }
    ensures written_back { (bytes word : List ℕ) → data_in 512 word ≡ Some bytes →
        data_text 512 bytes ≡ word }
{}

/// Words without the byte `at`, joined by it, are split into the same words, and words that a line was
/// split into are joined to the same line.
pub fn words_have_one_spelling()
    ensures split_again { (at : ℕ) (words : List (List ℕ)) → words ≢ [] →
        AllByRecursion (Without at) words →
        slice_split (λ b. b == at) (join_with_byte at words) ≡ words }
    ensures joined_again { (at : ℕ) (line : List ℕ) →
        join_with_byte at (slice_split (λ b. b == at) line) ≡ line }
    ensures no_separator { (at : ℕ) (line : List ℕ) →
        AllByRecursion (Without at) (slice_split (λ b. b == at) line) }
{}

/// Numbers, hexadecimal digits and DATA have no space in them, so a space may stand between them.
pub fn spellings_have_no_space()
    ensures number { (n : ℕ) → n < 2 ^ 64 → Without 32 (decimal n) }
    ensures hex { (bytes : List ℕ) → Without 32 (encode_upper bytes) }
    ensures data_word { (bytes : List ℕ) → Without 32 (data_text 512 bytes) }
{}

/// An input is its whole lines, each with its line feed, and then the rest; and lines without line feeds
/// are those of what they are joined to.
pub fn lines_are_the_input()
    ensures joined_again { (input : List ℕ) →
        with_feeds (whole_lines input) ++ rest_line input ≡ input }
    ensures no_feed { (input : List ℕ) →
        AllByRecursion NoFeed (whole_lines input) × NoFeed (rest_line input) }
    ensures split_again { (lines : List (List ℕ)) (rest : List ℕ) → AllByRecursion NoFeed lines →
        NoFeed rest →
        (whole_lines (with_feeds lines ++ rest) ≡ lines) × (rest_line (with_feeds lines ++ rest) ≡ rest) }
{}
