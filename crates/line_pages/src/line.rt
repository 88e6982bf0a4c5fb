//! Lines as values.
ghost use Rattle.std.specs.Prelude.{◌≡◌};
ghost use Rattle.line_pages.specs.Lines.{IsLine};

use nvm_model::Line;

/// The same line, of which contracts then know that it has eight words of eight bytes.
pub fn whole_line(line: &Line) -> Line
    ensures value { result ≡ line.now }
    ensures is_line { IsLine result }
{
    let [first, second, third, fourth, fifth, sixth, seventh, eighth] = line.words;
    Line {
        words: [first, second, third, fourth, fifth, sixth, seventh, eighth],
    }
}
