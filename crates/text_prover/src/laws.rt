// What holds of checking a certificate that was made.

ghost use Rattle.text_prover.specs.Laws.{AcceptedIsAccepted};

/// Where a certificate is accepted for a text, checking the bytes of both gives its claims, or lacks memory: no
/// other answer is possible.
pub fn law_accepted_certs_are_accepted()
    ensures { AcceptedIsAccepted }
{}
