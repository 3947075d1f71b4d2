// What an edit does to every view of an image, over the sector size: laws, and no code.
#![tactic(auto)]
