// The answers to packets, and what an action of the policy makes of a packet (document 01, 'Three doors').
#![tactic(auto)]

ghost use Rattle.std.specs.Prelude.{◌≡◌};
ghost use Rattle.selectors.specs.Value.{combination};
ghost use Rattle.sad.specs.Pairs.{pairs};
ghost use Rattle.verdicts.specs.Calls.{outbound_action, inbound_action};

use policy::Action;
use sad::TABLE_WORDS;
use selectors::Selectors;

#[derive(Clone, Copy, Debug, PartialEq, Eq)]
pub enum Verdict {
    // 0: pass in clear.
    Pass,
    // 1: deliver.
    Deliver,
    // 2: protect, with N, the pair's protocol and its outbound SPI.
    // Stays: three numbers, and no `Sa` among them. The theorems `out-2`, `in-4` and `carried` name them side by side, as C's words do.
    Protect(u64, u64, u64),
    // 3: an association is wanted, with N.
    Wanted(u64),
    // 4: to AH/ESP, with the protocol and the inbound SPI.
    ToIpsec(u64, u64),
    // 10: not readable.
    NotReadable,
    // 11: policy discards.
    Discarded,
    // 12: came in clear, policy says protect.
    CameInClear,
    // 13: no such pair.
    NoSuchPair,
    // 14: doesn't fit the pair.
    DoesNotFit,
    // 15: AH/ESP fragment.
    IpsecFragment,
    // 16: AH/ESP too short.
    IpsecTooShort,
    // 17: returned header unreadable.
    TriggerUnreadable,
    // 18: returned header doesn't fit.
    TriggerDoesNotFit,
}

fn protect(table: &[u64; TABLE_WORDS], selectors: Selectors, number: u64) -> Verdict
    ensures { result ≡ outbound_action (pairs table.now) (combination selectors) (Action.Protect number) }
{
    match sad::pair_for(table, number, selectors) {
        Some(sa) => Verdict::Protect(number, sa.protocol, sa.spi),
        None => Verdict::Wanted(number),
    }
}

// What the action for a packet going out gives.
pub fn outbound_action(table: &[u64; TABLE_WORDS], selectors: Selectors, action: Action) -> Verdict
    ensures { result ≡ outbound_action (pairs table.now) (combination selectors) action }
{
    match action {
        Action::Bypass => Verdict::Pass,
        Action::Discard => Verdict::Discarded,
        Action::Protect(number) => protect(table, selectors, number),
    }
}

// What the action for a packet coming in from outside gives.
pub fn inbound_action(action: Action) -> Verdict
    ensures { result ≡ inbound_action action }
{
    match action {
        Action::Bypass => Verdict::Pass,
        Action::Discard => Verdict::Discarded,
        Action::Protect(_) => Verdict::CameInClear,
    }
}
