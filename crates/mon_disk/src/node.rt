/// The two disks of a monitor.
#[derive(Drop)]
pub struct NodeDisks<D> {
    pub a: D,
    pub b: D,
}
