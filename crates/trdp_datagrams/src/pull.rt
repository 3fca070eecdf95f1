//! The answers of publishers to pull requests.

ghost use Rattle.std.specs.Prelude.{◌≡◌, ◌+◌, ◌<◌, ◌≤◌, ◌++◌};
ghost use Rattle.trdp_head.specs.declared.pd.TheConstants.{PD_TELEGRAM_MAX};
ghost use Rattle.trdp_filter.specs.Telegrams.{telegram_model};
ghost use Rattle.trdp_model.specs.Records.{labelled};
ghost use Rattle.trdp_model.specs.Pulls.{answer_place, pull_answer};
ghost use Rattle.trdp_model.specs.Configs.{setup_of};

use trdp_base::{Ip, Place};
use trdp_dataset::NodeConfig;
use trdp_filter::Telegram;
use trdp_head::{PD_TELEGRAM_MAX, PdHead};
use trdp_model::AnyObject;
use trdp_outbox::Outbox;

/// The `Place` that the answer to a pull request is sent to: its reply address with the node's own
/// process data port, or, where it has no such address, the place that it came from (profile). A
/// message is no pull request; the result is the place that it came from.
#[tactic(auto, unfolding(trdp_model::specs::Pulls::answer_place))]
pub fn answer_place(config: &NodeConfig, telegram: &Telegram<'_>) -> Place
    ensures { result ≡ answer_place (setup_of config.now) (telegram_model telegram.now) }
{
    match *telegram {
        Telegram::Pd { src, view, .. } => {
            if view.head.reply_ip == Ip(0) {
                src
            } else {
                Place {
                    ip: view.head.reply_ip,
                    port: config.pd_port(),
                }
            }
        }
        Telegram::Md { src, .. } => src,
    }
}

/// Records the answer of a publisher to a pull request, with its value.
pub fn push_answer(object: &AnyObject, to: Place, head: &PdHead, s: u16, out: &mut Outbox)
    requires row { 0 < out.old.row_room }
    requires bytes { PD_TELEGRAM_MAX ≤ out.old.byte_room }
    ensures records { out.new.records
        ≡ out.old.records ++ labelled s (pull_answer object.now to head.now) }
    ensures row_room { out.old.row_room ≤ out.new.row_room + 1 }
    ensures byte_room { out.old.byte_room ≤ out.new.byte_room + PD_TELEGRAM_MAX }
{
    if let AnyObject::Publisher(publisher) = object {
        if let Some(value) = publisher.value() {
            out.push_pd(s, to, head, value);
        }
    }
}
