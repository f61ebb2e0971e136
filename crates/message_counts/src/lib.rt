// The counts of messages, one for each site (request N5): whether each is within its limit, and
// their sum. Counts of the sites from k on are not looked at. The functions are internal: their
// callers test the settings first.

#![tactic(auto)]

ghost use Rattle.std.specs.Prelude.{◌≡◌};
ghost use Rattle.model.specs.Refusals.{no_refusal};
ghost use Rattle.model.specs.Settings.{settings_refusal};
ghost use Rattle.model.specs.MessageCounts.{counts_within};
ghost use Rattle.message_counts.specs.Totals.{total_held};

use model::{MESSAGE_LIMIT, SITE_RECORDS, Settings};

// Whether the count of each site is within its limit; their sum has none.
pub fn counts_within(settings: Settings, counts: [u64; SITE_RECORDS]) -> bool
    requires { settings_refusal settings ≡ no_refusal }
    ensures { result ≡ counts_within settings.sites counts }
{
    counts[..settings.sites as usize]
        .iter()
        .all(|count| *count <= MESSAGE_LIMIT)
}

// The messages counted for all sites: the sum of their counts, or what 64 bits hold at most where
// the sum is above it, which it is for no network that arises.
pub fn total_count(settings: Settings, counts: [u64; SITE_RECORDS]) -> u64
    requires { settings_refusal settings ≡ no_refusal }
    ensures { result ≡ total_held settings counts }
{
    counts[..settings.sites as usize]
        .iter()
        .fold(0, |total, count| total.saturating_add(*count))
}
