// A pass: the duty to end the outage of one coupler, by giving it back or writing it off. It names the number of the session
// that handed it out. It cannot be copied or made elsewhere, and no program that is proved lets one go that was handed out.
ghost use Rattle.std.specs.Prelude.{◌≡◌, ◌≤◌};

pub struct Pass {
    pub(crate) session: u32,
    pub(crate) coupler: usize,
}

// No chip has a coupler of that number, so no pass that was handed out meets this: the check refuses a program that lets
// one go.
impl Drop for Pass {
    fn drop(self)
        requires names_no_coupler { 256 ≤ self.coupler }
    {
        let Pass {
            session: _,
            coupler: _,
        } = self;
    }
}

impl Pass {
    // The number of the session that handed it out.
    pub fn session(&self) -> u32
        ensures { result ≡ self.now.session }
    {
        self.session
    }

    // The coupler that it is for.
    pub fn coupler(&self) -> usize
        ensures { result ≡ self.now.coupler }
    {
        self.coupler
    }

    // Ends the pass.
    pub(crate) fn spend(self) -> usize
        ensures { result ≡ self.coupler }
    {
        let Pass {
            session: _,
            coupler,
        } = self;
        coupler
    }
}
