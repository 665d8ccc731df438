// The pieces of a book.
ghost use Rattle.std.specs.Prelude.{◌≡◌, ◌∷◌};
ghost use Rattle.std.specs.Iterator.{YieldsFirstRef, item_count};
ghost use Rattle.batch.specs.Pieces.{pieces_in, pieces_left, pieces_of};

use memchr::memchr;

// What a line begins with that a book is cut before.
const MARK: &[u8] = b"part=";

// The first piece of the text, and what follows it, if more pieces do. Searched is the mark's first letter: sheets have fewer
// of it than lines.
fn first_piece(text: &[u8]) -> (&[u8], Option<&[u8]>)
    ensures { result.0.now ∷ pieces_in result.1 ≡ pieces_of text.now }
{
    let mut from = 0;
    while let Some(next) = memchr(MARK[0], &text[from..]) {
        let at = from + next;
        let (piece, rest) = text.split_at(at);
        if piece.ends_with(b"\n") && rest.starts_with(MARK) {
            return (piece, Some(rest));
        }
        from = at + 1;
    }
    (text, None)
}

// The pieces that are left of a book, the first to come at the front.
#[derive(Clone, Drop)]
pub struct Pieces<'a> {
    rest: Option<&'a [u8]>,
}

impl<'a> Iterator for Pieces<'a> {
    type Item = &'a [u8];

    ghost next_gives = { YieldsFirstRef pieces_left };

    ghost remaining = { item_count pieces_left };

    fn next(&mut self) -> Option<&'a [u8]> {
        let (piece, rest) = first_piece(self.rest?);
        self.rest = rest;
        Some(piece)
    }
}

// The pieces of the book in `text`, each a sheet on its own.
pub fn cut(text: &[u8]) -> Pieces<'_>
    ensures { pieces_left result ≡ pieces_of text.now }
{
    Pieces { rest: Some(text) }
}
