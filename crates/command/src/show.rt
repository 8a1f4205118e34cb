// Texts one after another in a lent buffer, as much of them as it has room for.
ghost use Rattle.std.specs.Prelude.{◌+◌, ◌^◌, ◌<◌, length};
ghost use Rattle.command.specs.Inside.{Adds};
ghost use Rattle.command.specs.Listing.{complaint};

// A lent buffer, and the place after the whole of the texts.
#[derive(Drop)]
pub(crate) struct Show<'a> {
    pub(crate) out: &'a mut [u8],
    pub(crate) at: usize,
}

impl Show<'_> {
    // The bytes of s.
    pub(crate) fn text(&mut self, s: &[u8])
        requires { self.old.at + length s.now < 2 ^ 64 }
        ensures { Adds self.old self.new s.now }
    {
        let start = self.at.min(self.out.len());
        let n = s.len().min(self.out.len() - start);
        self.out[start..start + n].copy_from_slice(&s[..n]);
        self.at += s.len();
    }

    // One line that says what is wrong, and of which word.
    pub(crate) fn complain(&mut self, what: &[u8], word: &[u8])
        requires { self.old.at + length what.now + length word.now + 10 < 2 ^ 64 }
        ensures { Adds self.old self.new (complaint what.now word.now) }
    {
        self.text(b"listing: ");
        self.text(what);
        self.text(word);
        self.text(b"\n");
    }
}
