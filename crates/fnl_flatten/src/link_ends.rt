//! Joints at which links begin and end.

ghost use Rattle.std.specs.Prelude.{◌≡◌};
ghost use Rattle.fnl_flatten.specs.Links as links;

use crate::joint::Joint;
use net_model::End;
use rvc_base::InstId;

/// The end of a link that the joint is, if tokens come from there: an output of an actor, or an input of the top network.
pub(crate) fn writing_end(joint: Joint) -> Option<End>
    ensures { result ≡ links.writing_end joint }
{
    match joint {
        Joint::Leaf { leaf, input, port } => {
            if input {
                None
            } else {
                let inst = InstId(leaf);
                Some(End::Leaf { inst, port })
            }
        }
        Joint::Own { net, input, port } => top_input(net, input, port),
    }
}

/// The end of a link that a network's own port is, if tokens come from there.
#[tactic(auto, using(crate::proofs::TopEnds::none_written, crate::proofs::TopEnds::top_written, crate::proofs::TopEnds::output_unwritten))]
fn top_input(net: u32, input: bool, port: u32) -> Option<End>
    ensures { result ≡ links.writing_end (Joint.Own net input port) }
{
    if net > 0 {
        return None;
    }
    if input { Some(End::Net { port }) } else { None }
}

/// The end of a link that the joint is, if tokens go there: an input of an actor, or an output of the top network.
pub(crate) fn reading_end(joint: Joint) -> Option<End>
    ensures { result ≡ links.reading_end joint }
{
    match joint {
        Joint::Leaf { leaf, input, port } => {
            if input {
                let inst = InstId(leaf);
                Some(End::Leaf { inst, port })
            } else {
                None
            }
        }
        Joint::Own { net, input, port } => top_output(net, input, port),
    }
}

/// The end of a link that a network's own port is, if tokens go there.
#[tactic(auto, using(crate::proofs::TopEnds::none_read, crate::proofs::TopEnds::top_read, crate::proofs::TopEnds::input_unread))]
fn top_output(net: u32, input: bool, port: u32) -> Option<End>
    ensures { result ≡ links.reading_end (Joint.Own net input port) }
{
    if net > 0 {
        return None;
    }
    if input { None } else { Some(End::Net { port }) }
}
