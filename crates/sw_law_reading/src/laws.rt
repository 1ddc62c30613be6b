//! The law of gets and puts over a growing view, as the contract of a function without arguments.

ghost use Rattle.sw_ring.specs.Cluster.{ClusterModel};
ghost use Rattle.sw_law_reading.specs.Reading.{CreatedOver, FoundOver, NeverOlderOver, ShowsOver};

/// Over a link whose calls let a sound view grow: where the view knew a put acknowledged as the get of its name began, with fewer devices out
/// than commits the get tells of nothing older; if besides at most q - k are out, it shows the put or something newer, or it was overtaken.
/// What a get found is the whole object of one put that the view knows, and each of the get's replies is an event in the view's histories.
/// A put that ended as created is one that the view knows acknowledged.
pub fn reading_law()
    ensures never_older { (cluster : ClusterModel) → NeverOlderOver cluster }
    ensures shows { (cluster : ClusterModel) → ShowsOver cluster }
    ensures found { (cluster : ClusterModel) → FoundOver cluster }
    ensures created { (cluster : ClusterModel) → CreatedOver cluster }
{}
