// Tables that are accepted: nobody has a value of this type without a proof that they pass the checks 2 to 5.
ghost use Rattle.std.specs.Prelude.{◌≡◌, ◌+◌, ◌<◌, length};
ghost use Rattle.site.specs.Site.{codes_of};
ghost use Rattle.tables.specs.Sound.{Sound};

use site::Context;

// Offsets and codes of a site, as lent.
#[derive(Clone, Copy)]
pub struct Tables<'o, 'c> {
    pub offsets: &'o [u16],
    pub codes: &'c [u16],
    pub ghost sound: { Sound offsets.now codes.now },
}

impl<'c> Tables<'_, 'c> {
    ghost use Rattle.tables.specs.Accepted.{the_site};

    // How many contexts they cut.
    pub fn contexts(self) -> usize
        ensures { result ≡ length (the_site self.entry) }
    {
        self.offsets.len() - 1
    }

    // The codes of a context: a part of the lent codes, handed back to the caller.
    pub fn context(self, c: Context) -> &'c [u16]
        requires { c.0 + 1 < length self.offsets.now }
        ensures { result.now ≡ codes_of (the_site self.entry) c.0 }
    {
        let i = c.0 as usize;
        let from = self.offsets[i] as usize;
        let to = self.offsets[i + 1] as usize;
        &self.codes[from..to]
    }
}
