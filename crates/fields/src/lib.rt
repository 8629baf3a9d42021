// No code: the three fields of this library, each from the field theorem of gf2 and a computed certificate.

#![tactic(auto)]
