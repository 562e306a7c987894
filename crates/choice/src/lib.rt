// The choice by a test and its laws, cited by every crate above. Definitions and laws only: see specs/.
#![tactic(auto)]
