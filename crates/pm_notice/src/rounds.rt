//! The rounds that bring notices to subscriptions.
ghost use Rattle.std.specs.Prelude.{◌≡◌, ◌<◌, ◌≤◌, ◌++◌, ◌&&◌, ℕ, List, length, map, filter, All, AllPairs, nat_lt};
ghost use Rattle.pm_outside.specs.Causes.{faults_after};
ghost use Rattle.pm_history.specs.History.{History};
ghost use Rattle.pm_notice.specs.declared.notice.Notice.{Notice};
ghost use Rattle.pm_notice.specs.Round.{is_due, round_posts, rounds_posts, EndsRound, AreRounds, stops, faults_after_stops, are_within, IsServable};
ghost use Rattle.pm_notice.specs.Planned.{subscriptions_of};
ghost use Rattle.pm_notice.specs.StandFor.{StandFor, cursors_of};

use crate::{Notice, Subscription, Subscriptions};
use pm_outside::Courier;

/// The seconds after its period's end at which a notice expires.
const EXPIRY: u64 = 86_400;

fn is_due(notice: &Notice, cursor: u64, moment: u64) -> bool
    ensures { result ≡ is_due moment cursor notice.now }
{
    cursor <= notice.number && (moment < EXPIRY || moment - EXPIRY < notice.end)
}

/// The round of one subscription. It answers where its cursor stands after it.
fn serve<P: Courier>(
    subscription: &Subscription,
    notices: &[Notice],
    total: u64,
    moment: u64,
    courier: &mut P,
) -> u64
    requires cursor { subscription.now.cursor ≤ total }
    requires rising { AllPairs (λ (m n : Notice). m.number < n.number) notices.now }
    requires numbered { All (λ (n : Notice). n.number < total) notices.now }
    ensures ends { EndsRound notices.now total moment subscription.now result }
    ensures posted { P.IsTold → P.posts courier.new ≡ P.posts courier.old ++ round_posts notices.now moment subscription.now result }
    ensures counted { P.faults courier.new ≡ faults_after (nat_lt result total) (P.faults courier.old) }
{
    for notice in notices {
        if is_due(notice, subscription.cursor, moment)
            && courier
                .post(
                    subscription.port,
                    subscription.path.as_bytes(),
                    notice.body.as_bytes(),
                )
                .is_err()
        {
            return notice.number;
        }
    }
    total
}

impl Subscriptions {
    /// Whether no cursor is past this number of notices.
    pub fn are_within(&self, total: u64) -> bool
        ensures { result ≡ are_within total (subscriptions_of self.now) }
    {
        self.items.iter().all(|s| s.cursor <= total)
    }

    /// One round for each subscription, in byte order of id: the notices from its cursor on are posted in order, but for
    /// those that are expired, until a post fails. `total` is how many notices there are. The notices handed in are those
    /// from the least cursor on; one that is missing counts as expired. It takes no memory.
    pub fn deliver<P: Courier>(
        &mut self,
        notices: &[Notice],
        total: u64,
        moment: u64,
        courier: &mut P,
    )
        requires { 0 < length (subscriptions_of self.old) → IsServable (subscriptions_of self.old) notices.now total }
        ensures rounds { AreRounds notices.now total moment (subscriptions_of self.old) (subscriptions_of self.new) }
        ensures posted { P.IsTold → P.posts courier.new ≡ P.posts courier.old ++ rounds_posts notices.now moment (subscriptions_of self.old) (subscriptions_of self.new) }

        // Each round that stopped short is one fault of the courier, and there is no other.
        ensures counted { P.faults courier.new ≡ faults_after_stops (stops total (subscriptions_of self.new)) (P.faults courier.old) }
        ensures stand { (h : History) (cursors : List ℕ) → StandFor (subscriptions_of self.old) h cursors → StandFor (subscriptions_of self.new) h (cursors_of (subscriptions_of self.new)) }
    {
        for place in 0..self.count() {
            let end = serve(self.at(place), notices, total, moment, courier);
            self.set_cursor(place, end);
        }
    }
}
