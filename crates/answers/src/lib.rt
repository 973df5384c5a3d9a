#![tactic(auto)]

ghost use Rattle.std.specs.Prelude.{◌≡◌, ◌<◌, ◌^◌};
ghost use Rattle.answers.specs.Errno.{errnos};
ghost use Rattle.answers.specs.Number.{number};
ghost use Rattle.answers.specs.Answer.{refusal, done};

// The errnos of the refusals (§2.2). Their definitions in the contracts say when each is given.
#[derive(Clone, Copy, Debug, PartialEq, Eq)]
pub enum Errno {
    ENOENT = 2,
    ENXIO = 6,
    E2BIG = 7,
    ENOMEM = 12,
    EFAULT = 14,
    EBUSY = 16,
    EEXIST = 17,
    ENODEV = 19,
    EINVAL = 22,
}

impl Errno {
    // The number of errno.h.
    pub fn number(self) -> u64
        ensures { result ≡ number self }
    {
        self as u64
    }

    // The refusal by this errno.
    pub fn refusal(self) -> i64
        ensures { result ≡ refusal (number self) }
    {
        refuse(self.number())
    }
}

// Every number above, so that each is proved to be the one that the contracts name.
pub fn table() -> [u64; 9]
    ensures { result ≡ errnos }
{
    [
        Errno::ENOENT.number(),
        Errno::ENXIO.number(),
        Errno::E2BIG.number(),
        Errno::ENOMEM.number(),
        Errno::EFAULT.number(),
        Errno::EBUSY.number(),
        Errno::EEXIST.number(),
        Errno::ENODEV.number(),
        Errno::EINVAL.number(),
    ]
}

// A refusal (§2.1): the errno with its sign turned.
pub fn refuse(errno: u64) -> i64
    requires { errno < 4096 }
    ensures { result ≡ refusal errno }
{
    -(errno as i64)
}

// Success (§2.1): the number itself.
pub fn done(n: u64) -> i64
    requires { n < 2 ^ 63 }
    ensures { result ≡ done n }
{
    n as i64
}
