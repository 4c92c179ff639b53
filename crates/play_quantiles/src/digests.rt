// The digests of a room: of the samples in their order, or of each bucket and each total that is not empty with its place.
use play_script::Digest;
use quantiles::Quantiles;

fn samples(room: &[u64], count: usize) -> Digest {
    let mut digest = Digest::empty();
    for word in &room[..count.min(room.len())] {
        digest = digest.then(*word);
    }
    digest
}

// The words behind the samples, up to `end`: by their places, since to skip the samples of an iterator is to step over each of them.
fn filled(room: &[u64], end: usize) -> Digest {
    let mut digest = Digest::empty();
    for i in 4096..end.min(room.len()) {
        if room[i] > 0 {
            digest = digest.then((i - 4096) as u64).then(room[i]);
        }
    }
    digest
}

pub fn digest(state: Quantiles, room: &[u64], asked: bool) -> Digest {
    if !asked {
        return Digest::empty();
    }
    if state.count <= 4096 {
        return samples(room, (state.count % 8192) as usize);
    }
    filled(room, quantile_room::room_size(state.signed))
}
