//! The laws of the market, over its definitions alone: what a step, a whole history and the feed promise, whatever
//! the code does. Each function is a proved statement, and does nothing.
#![tactic(auto)]

ghost use Rattle.hx_laws.specs.FeedFits.{FeedFits};
ghost use Rattle.hx_laws.specs.Laws.{QuietBefore, OneChain, NotChosen, QuietChains, OneMember, AnyPart, ChainsOfAny, FeedOfAnyChoice, RepliesOfAnyChoice, ListedIsChoice, QuietIsChoice, AllMembers, AllButOne, FeedIsBook, FeedIsUncrossed};

pub mod partitions;

/// A token that was used after the beginning of a history, and whose chain is quiet after the whole, was quiet after
/// the beginning.
pub fn quiet_before()
    ensures { QuietBefore }
{}

/// A message with an effect bears tokens of one chain only: its step changes more than the count of recorded events, or
/// has output, and then all its tokens are used afterwards, in one chain.
pub fn one_chain()
    ensures { OneChain }
{}

/// Taking orders that are not executed out of the list of the live ones changes no execution.
pub fn not_chosen()
    ensures { NotChosen }
{}

/// Quiet orders leave no trace: for any choice of whole chains, of any members, that in the end were never displayed
/// and never traded, the history without every message that bears one of their tokens has the same feed and the same
/// replies to everyone of whom no token is chosen, message by message in the same order.
pub fn quiet_chains()
    ensures { QuietChains }
{}

/// The headline: without the messages that bear a token of one of a member's quiet chains, the feed and every reply
/// to every other member stay the same, message by message in the same order.
pub fn one_member()
    ensures { OneMember }
{}

/// The same of any part of a member's quiet chains: of a list of tokens that are those of whole quiet chains, and of
/// the chains of any list of quiet tokens.
pub fn any_part()
    ensures listed { AnyPart }
    ensures chained { ChainsOfAny }
{}

/// The feed alone: without the messages of any choice of whole quiet chains, of any members, it stays the same.
pub fn feed_alone()
    ensures { FeedOfAnyChoice }
{}

/// The replies to one member alone: without the messages of any choice of whole quiet chains of others they stay the
/// same.
pub fn replies_alone()
    ensures { RepliesOfAnyChoice }
{}

/// What may be chosen: a list of tokens of one member that are those of whole quiet chains, and all its quiet chains.
pub fn choices()
    ensures listed { ListedIsChoice }
    ensures all { QuietIsChoice }
{}

/// The same of all members at once: without the messages of all quiet chains the feed stays the same.
pub fn all_members()
    ensures { AllMembers }
{}

/// And of all but one: without the messages of everybody else's quiet chains, a member's replies stay the same.
pub fn all_but_one()
    ensures { AllButOne }
{}

/// The book that a reader of the feed builds by the rules of TotalView-ITCH 5.0 is the shown live orders as the feed
/// publishes them, in time order; and no shown buy of a stock has a price at or above a shown sell of it. It holds of
/// every list of events, also of those that a market would refuse.
pub fn feed_and_book()
    ensures book { FeedIsBook }
    ensures uncrossed { FeedIsUncrossed }
{}

/// The feed of a recorded history fits its fields: each number fits into its bytes, and each name has its length, for
/// a setup and events whose values are those of their types.
pub fn feed_fits()
    ensures { FeedFits }
{}
