ghost use Rattle.qf_app.specs.Laws.{CertificatesAreAccepted};

/// Each certificate that `diagnose` puts is accepted by `check` for the same four files. The law holds of the definitions,
/// and the call does nothing.
pub fn certificates_are_accepted()
    ensures { CertificatesAreAccepted }
{}
