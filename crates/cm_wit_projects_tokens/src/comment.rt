//! Comments between `/*` and `*/`, which nest.

ghost use Rattle.std.specs.Prelude.{◌≡◌, ◌+◌, ◌^◌, ◌<◌, ◌≤◌, IfSome, length};
ghost use Rattle.std.specs.Option.{option_map};
ghost use Rattle.cm_wit_tokens.specs.Comments.{after_byte, comment_length, inside, opened};
ghost use Rattle.cm_wit_projects_tokens.specs.Views.{inside_view};

/// A place inside a comment: how many comments are open, and the byte before, which is a blank
/// where it was part of a mark.
#[derive(Clone, Copy)]
pub struct Inside {
    pub depth: usize,
    pub last: u8,
}

impl Inside {
    /// The place behind one more byte, or `None` where that byte ends the outermost comment.
    fn after_byte(self, byte: u8) -> Option<Inside>
        requires { self.depth + 1 < 2 ^ 64 }
        ensures place { option_map inside_view result ≡ after_byte (inside_view self) byte }
        ensures depth { IfSome result (λ next. next.depth ≤ self.depth + 1) }
    {
        match (self.last, byte) {
            (b'*', b'/') if self.depth <= 1 => None,
            (b'*', b'/') => Some(Inside {
                depth: self.depth - 1,
                last: b' ',
            }),
            (b'/', b'*') => Some(Inside {
                depth: self.depth + 1,
                last: b' ',
            }),
            _ => Some(Inside {
                depth: self.depth,
                last: byte,
            }),
        }
    }
}

/// How many bytes stand from right behind the first `/*` to the end of its comment, or `None` where
/// it has no end.
pub fn comment_length(text: &[u8]) -> Option<usize>
    ensures length { result ≡ comment_length opened text.now }
    ensures within { IfSome result (λ n. n ≤ length text.now) }
{
    let mut inside = Inside {
        depth: 1,
        last: b' ',
    };
    for (index, byte) in text.iter().enumerate() {
        match inside.after_byte(*byte) {
            None => return Some(index + 1),
            Some(next) => inside = next,
        }
    }
    None
}
