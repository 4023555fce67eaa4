//! Reads the values of options as a plan.
ghost use Rattle.std.specs.Prelude.{◌≡◌, IfSome, Some};
ghost use Rattle.nio_command.specs.Words.{AsksFor, AsksForPackets, most_connections};
ghost use Rattle.nio_command.specs.Texts.{packet_texts_of, texts_of};

use crate::address::read_address;
use crate::number::read_number;
use crate::packet_options::PacketTexts;
use crate::proxy_options::ProxyTexts;
use crate::way::{ProxyWay, read_way};
use nio_relay::{MOST_AT_ONCE, PacketPlan, ProxyPlan};

// After how many connections a proxy of this way ends at most.
fn most_connections(way: ProxyWay) -> u32
    ensures { result ≡ most_connections way }
{
    match way {
        ProxyWay::Select | ProxyWay::Many(_) => u32::MAX,
        ProxyWay::Group(_) | ProxyWay::Future => MOST_AT_ONCE,
    }
}

/// Reads the values of the options of `proxy` as a plan and a way. None where one of them isn't valid.
pub fn read_proxy_plan(texts: ProxyTexts<'_>) -> Option<(ProxyPlan, ProxyWay)>
    ensures found { IfSome result (λ read. AsksFor (texts_of texts.entry) read.0 read.1) }
    ensures only { (plan : ProxyPlan) (way : ProxyWay) → AsksFor (texts_of texts.entry) plan way
        → result ≡ Some (plan, way) }
{
    let way = read_way(texts.way, texts.workers)?;
    let plan = ProxyPlan {
        listen: read_address(texts.listen)?,
        target: read_address(texts.target)?,
        conns: read_number(texts.conns, 1, most_connections(way))?,
        at_once: MOST_AT_ONCE,
    };
    Some((plan, way))
}

/// Reads the values of the options of `packets` as a plan. None where one of them isn't valid.
pub fn read_packet_plan(texts: PacketTexts<'_>) -> Option<PacketPlan>
    ensures found { IfSome result (AsksForPackets (packet_texts_of texts.entry)) }
    ensures only { (plan : PacketPlan) → AsksForPackets (packet_texts_of texts.entry) plan → result ≡ Some plan }
{
    Some(PacketPlan {
        listen: read_address(texts.listen)?,
        local: read_address(texts.local)?,
        target: read_address(texts.target)?,
        count: read_number(texts.count, 1, 1_000_000)?,
    })
}
