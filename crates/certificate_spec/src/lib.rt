//! What the certificate of an analysis says, as definitions: which sites it claims, and the sets and path edges that show it (`IsCertificateOf`).
//! It runs nothing. The layers above make the certificate, or tell what is true of it; the same facts give one (run_spec, `one_report`).
//! Begin with specs/Certificates.antt.
#![tactic(auto)]
