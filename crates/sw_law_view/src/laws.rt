//! The law of views, as the contract of a function without arguments.

ghost use Rattle.std.specs.Prelude.{ℕ, List};
ghost use Rattle.sw_ring.specs.Cluster.{ClusterModel, KeepsRules};
ghost use Rattle.sw_view.specs.History.{Continues, IsGuarded};
ghost use Rattle.sw_view.specs.View.{IsFresh, IsSoundView, View, empty_view};
ghost use Rattle.sw_view.specs.declared.event.Event.{Event as AnEvent};
ghost use Rattle.sw_law_view.specs.Duties.{KeepsDuties, KeepsHeld};
ghost use Rattle.sw_law_view.specs.Replies.{KeepsListings, KeepsReplies};
ghost use Rattle.sw_law_view.specs.Staying.{IsSoWithin, StaysClosed, StaysSound};

/// In each sound view what a device answered for it holds, or the primary of the index holds it durable or has something newer, or the disk
/// of one of the two was replaced; replies show puts and deletes that are known, and what they show durable is decided by replies that are;
/// and what a device claimed it lists later, unless its disk was replaced or the entry handed on.
/// The empty view is sound. A view stays sound as a put or a delete draws a fresh stamp, which is guarded by whatever mark in each history,
/// and as a fair event that may happen is added; a closed one stays closed as a device handles a message that is firmly warranted, and where
/// two are joined. What holds of a history holds of one that it goes on from.
pub fn view_law()
    ensures duties { (cluster : ClusterModel) (view : View) → IsSoundView cluster view → KeepsDuties cluster view }
    ensures held { (cluster : ClusterModel) (view : View) → IsSoundView cluster view → KeepsHeld cluster view }
    ensures replies { (cluster : ClusterModel) (view : View) → IsSoundView cluster view → KeepsReplies cluster view }
    ensures listings { (cluster : ClusterModel) (view : View) → IsSoundView cluster view → KeepsListings cluster view }
    ensures stays { (cluster : ClusterModel) → StaysClosed cluster }
    ensures empty { (cluster : ClusterModel) → KeepsRules cluster → IsSoundView cluster empty_view }
    ensures fresh { (cluster : ClusterModel) (view : View) (stamp device mark : ℕ) → IsSoundView cluster view → IsFresh cluster view stamp → IsGuarded cluster device stamp mark (view.history device) }
    ensures stays_sound { (cluster : ClusterModel) → StaysSound cluster }
    ensures within { (cluster : ClusterModel) (device : ℕ) (later earlier : List AnEvent) → Continues later earlier → IsSoWithin cluster device later earlier }
{}
