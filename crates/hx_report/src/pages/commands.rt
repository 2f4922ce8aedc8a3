//! The commands by which anybody repeats what a report says.

// Of a member's check, if the setup is the standard one.
const OF_MEMBER: &str = "\
N=1
hx_tape replay < day.tape | grep -v \"^M $N \" | sha256sum
hx_tape strike --member $N < day.tape > struck.tape
hx_tape replay < struck.tape | grep -v \"^M $N \" | sha256sum
";

// The same with a setup of the day.
const OF_MEMBER_WITH_SETUP: &str = "\
N=1
hx_tape replay --setup day.setup < day.tape | grep -v \"^M $N \" | sha256sum
hx_tape strike --setup day.setup --member $N < day.tape > struck.tape
hx_tape replay --setup day.setup < struck.tape | grep -v \"^M $N \" | sha256sum
";

// Of the check of all members at once.
const OF_ALL: &str = "\
hx_tape replay < day.tape | grep '^F ' | sha256sum
hx_tape strike --all < day.tape > struck.tape
hx_tape replay < struck.tape | grep '^F ' | sha256sum
";

// The same with a setup of the day.
const OF_ALL_WITH_SETUP: &str = "\
hx_tape replay --setup day.setup < day.tape | grep '^F ' | sha256sum
hx_tape strike --setup day.setup --all < day.tape > struck.tape
hx_tape replay --setup day.setup < struck.tape | grep '^F ' | sha256sum
";

/// The commands that repeat the check of member `N`.
pub(crate) fn of_member(has_setup: bool) -> &'static str {
    if has_setup {
        OF_MEMBER_WITH_SETUP
    } else {
        OF_MEMBER
    }
}

/// The commands that repeat the check of all members at once.
pub(crate) fn of_all(has_setup: bool) -> &'static str {
    if has_setup { OF_ALL_WITH_SETUP } else { OF_ALL }
}
