//! A copy of a line's settings, for what keeps them.
ghost use Rattle.std.specs.Prelude.{◌≡◌};

use crate::types::{GooseSettings, LineSettings};
use arrayvec::ArrayVec;

impl LineSettings {
    /// The same settings once more. It takes no memory, and never fails.
    pub fn copy(&self) -> LineSettings
        ensures { result ≡ self.now }
    {
        LineSettings {
            name: copy_items(&self.name),
            sv_id: copy_items(&self.sv_id),
            conf_rev: self.conf_rev,
            quality_mask: self.quality_mask,
            synch_min: self.synch_min,
            line_r: self.line_r,
            line_x: self.line_x,
            k0_re: self.k0_re,
            k0_im: self.k0_im,
            i_min: self.i_min,
            i0_min: self.i0_min,
            dir_i2: self.dir_i2,
            mem_u: self.mem_u,
            mem_ms: self.mem_ms,
            trip_min_ms: self.trip_min_ms,
            open_i: self.open_i,
            open_ms: self.open_ms,
            mimic: self.mimic,
            swing: self.swing,
            fuse: self.fuse,
            load: self.load,
            goose: self.goose.copy(),
            zones: copy_items(&self.zones),
        }
    }
}

impl GooseSettings {
    /// The same settings once more. It takes no memory, and never fails.
    pub fn copy(&self) -> GooseSettings
        ensures { result ≡ self.now }
    {
        GooseSettings {
            dst: self.dst,
            src: self.src,
            appid: self.appid,
            vlan_priority: self.vlan_priority,
            vlan_id: self.vlan_id,
            gocb_ref: copy_items(&self.gocb_ref),
            dat_set: copy_items(&self.dat_set),
            go_id: copy_items(&self.go_id),
            conf_rev: self.conf_rev,
        }
    }
}

fn copy_items<T: Copy + Default + Drop, const MOST: usize>(
    items: &ArrayVec<T, MOST>,
) -> ArrayVec<T, MOST>
    ensures { result ≡ items.now }
{
    let mut copy = ArrayVec::new();
    if items.len() <= MOST {
        let _ = copy.try_extend_from_slice(items.as_slice());
    }
    copy
}
