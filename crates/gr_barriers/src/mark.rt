//! What a work-item's barrier brings to its instance.

ghost use Rattle.std.specs.Prelude.{◌≡◌, ◌↔◌, IsTrue};

use std::marker::Model;

/// The site of a barrier, and the memories that its flags name.
#[derive(Clone, Copy, Debug)]
pub struct Mark {
    site: u32,
    global: bool,
    local: bool,
}

impl Model for Mark {
    ghost use Rattle.gr_model.specs.Prelude.{Mark as Brought};

    ghost Value = { Brought };

    ghost view = { λ m. record { site = m.site; global = m.global; local = m.local } };

    ghost inverse = { λ b. record { site = b.site; global = b.global; local = b.local } };
}

impl Mark {
    /// The mark of a barrier at this site with these flags.
    pub fn new(site: u32, global: bool, local: bool) -> Mark
        ensures { result ≡ record { site = site; global = global; local = local } }
    {
        Mark {
            site,
            global,
            local,
        }
    }

    /// Whether two barriers are at one site.
    pub(crate) fn is_at_site_of(self, other: Mark) -> bool
        ensures { IsTrue result ↔ (self.site ≡ other.site) }
    {
        self.site == other.site
    }

    /// Whether two barriers have one site and the same flags.
    pub(crate) fn is_same(self, other: Mark) -> bool
        ensures { IsTrue result ↔ (self ≡ other) }
    {
        self.site == other.site && self.global == other.global && self.local == other.local
    }
}
