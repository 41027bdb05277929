//! Single words of the command line: options, options with a value, names and numbers.
ghost use Rattle.std.specs.Prelude.{◌≡◌, ◌≤◌, true, length};
ghost use Rattle.std.specs.Char.{is_ascii_digit};
ghost use Rattle.std.specs.List.{list_all};
ghost use Rattle.std.specs.Option.{option_map, option_and_then};
ghost use Rattle.std.specs.Str.Parse.{digits_value};
ghost use Rattle.command_words.specs.Commands.{after_prefix, option_of, option_with_value, nonempty_value, is_name, number_in};

/// The options, each with a value.
#[derive(Clone, Copy, Debug)]
pub enum OptionName {
    Workers,
    Ranks,
    Parts,
    Turns,
}

/// The greatest number of digits of a number.
const MOST_DIGITS: usize = 10;

/// The option that the word is.
pub fn option_of(word: &[u8]) -> Option<OptionName>
    ensures { result ≡ option_of word.now }
{
    if word == b"--workers".as_slice() {
        Some(OptionName::Workers)
    } else if word == b"--ranks".as_slice() {
        Some(OptionName::Ranks)
    } else if word == b"--parts".as_slice() {
        Some(OptionName::Parts)
    } else if word == b"--turns".as_slice() {
        Some(OptionName::Turns)
    } else {
        None
    }
}

/// The option and the value of a word such as `--turns=5`.
pub fn option_with_value(word: &[u8]) -> Option<(OptionName, &[u8])>
    ensures { option_map (λ g. (g.0, g.1.now)) result ≡ option_with_value word.now }
{
    if let Some(value) = value_after(word, b"--workers=") {
        Some((OptionName::Workers, value))
    } else if let Some(value) = value_after(word, b"--ranks=") {
        Some((OptionName::Ranks, value))
    } else if let Some(value) = value_after(word, b"--parts=") {
        Some((OptionName::Parts, value))
    } else {
        let value = value_after(word, b"--turns=")?;
        Some((OptionName::Turns, value))
    }
}

/// The rest of a word after a prefix, if the word starts with the prefix and the rest is not empty.
fn value_after<'a>(word: &'a [u8], front: &[u8]) -> Option<&'a [u8]>
    ensures { option_map (λ value. value.now) result
        ≡ option_and_then nonempty_value (after_prefix front.now word.now) }
{
    let value = rest_after(word, front)?;
    if value.is_empty() { None } else { Some(value) }
}

/// The rest of a word after a prefix, if the word starts with the prefix.
fn rest_after<'a>(word: &'a [u8], front: &[u8]) -> Option<&'a [u8]>
    ensures { option_map (λ rest. rest.now) result ≡ after_prefix front.now word.now }
{
    word.strip_prefix(front)
}

/// Whether the word can name a file: it is not empty and does not start with `-`.
pub fn is_name(word: &[u8]) -> bool
    ensures { result ≡ is_name word.now }
{
    match word {
        [] => false,
        [first, ..] => *first != b'-',
    }
}

fn all_digits(word: &[u8]) -> bool
    ensures { result ≡ list_all is_ascii_digit word.now }
{
    word.iter().all(|b| b.is_ascii_digit())
}

/// The number that 1 to 10 digits write, if it is within bounds.
pub fn number_in(least: u64, most: u64, word: &[u8]) -> Option<u64>
    ensures { result ≡ number_in least most word.now }
{
    if word.is_empty() || word.len() > MOST_DIGITS || !all_digits(word) {
        return None;
    }
    let value = number_of(word);
    if least <= value && value <= most {
        Some(value)
    } else {
        None
    }
}

/// The number that at most 10 digits write.
fn number_of(digits: &[u8]) -> u64
    requires few { length digits.now ≤ 10 }
    requires digits { list_all is_ascii_digit digits.now ≡ true }
    ensures { result ≡ digits_value 10 digits.now }
{
    let mut value = 0;
    for b in digits {
        value = value * 10 + u64::from(*b - b'0');
    }
    value
}
