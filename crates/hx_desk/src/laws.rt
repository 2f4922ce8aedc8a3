//! Laws of histories, over the definitions alone. Each function is a proved statement, and does nothing.
ghost use Rattle.hx_desk.specs.Known.{RepliesGrow};

/// The replies of a longer history begin with those of a shorter: what a member was sent stays.
pub fn replies_grow()
    ensures { RepliesGrow }
{}
