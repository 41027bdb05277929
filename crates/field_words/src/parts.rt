ghost use Rattle.field_words.specs.Maps.{numbers_as_words};

use crate::rule::Part;
use liszt_base::NumbersList;

/// The words of a list of numbers are those numbers that are at least 0.
impl Part for NumbersList {
    ghost words = { numbers_as_words };
}
