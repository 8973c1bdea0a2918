// From ends that listen to ends that are asked.
use field::Field;
use inquiry::{Sealed, SealedHost, SealedVerifier};
use pairs::Listening;

// Seals both ends.
pub(crate) fn seal<F: Field>(both: Listening<F>) -> Sealed<F> {
    let Listening { host, verifier } = both;
    Sealed {
        host: SealedHost {
            product: host.product.seal(),
            at: host.standing,
            counts: host.cells,
            plain: host.plain,
        },
        verifier: SealedVerifier {
            product: verifier.product.seal(),
            at: verifier.standing,
            point: verifier.secret,
            sums: verifier.cells,
            plain: verifier.plain,
        },
    }
}
