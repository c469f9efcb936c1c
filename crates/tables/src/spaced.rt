ghost use Rattle.std.specs.Prelude.{◌≡◌, ◌≤◌, length};
ghost use Rattle.tables.specs.Steps.{spaced};

use arrayvec::ArrayString;
use itoa::Buffer;

/// The text of at most 8 numbers, with a space between each two: at most 10 digits for each, and 7 spaces.
pub(crate) fn spaced_text(numbers: &[u32]) -> ArrayString<87>
    requires { length numbers.now ≤ 8 }
    ensures { result.bytes ≡ spaced numbers.now }
{
    let mut text = ArrayString::new();
    let mut digits = Buffer::new();
    let [first, rest @ ..] = numbers else {
        return text;
    };
    text.push_str(digits.format(*first));
    for number in rest {
        text.push(' ');
        text.push_str(digits.format(*number));
    }
    text
}
